// What the functions answer that a C program calls. Crate `capi_c` exports them to C.
#![tactic(auto)]

ghost use Rattle.std.specs.Prelude.{◌≡◌};
ghost use Rattle.capi.specs.Codes.{code_of, file_verdict};

use judging::judge_bytes;
use record::MAX_NODES;
use ruling::Refusal;
use table::FlatTable;

// The stack is as long as the longest record, so it is never too short.
#[tactic(auto, using(crate::proofs::Verdicts::long_enough))]
fn verdict(table: &[u8], bytes: &[u8]) -> Result<bool, Refusal>
    ensures { result ≡ file_verdict table.now bytes.now }
{
    let ruling = FlatTable::read(table)?;
    let mut slots = [0u16; MAX_NODES];
    judge_bytes(&ruling, bytes, &mut slots)
}

// Minus the number of a refusal, for C.
fn code(verdict: Result<bool, Refusal>) -> i32
    ensures { result ≡ code_of verdict }
{
    match verdict {
        Ok(true) => 1,
        Ok(false) => 0,
        Err(refusal) => -(refusal.notice().number as i32),
    }
}

// Whether the ruling of a table file accepts a record of up to 4,096 nodes: 1, 0, or minus the number of the refusal.
// The table is checked first.
pub fn judge(table: &[u8], bytes: &[u8]) -> i32
    ensures { result ≡ code_of (file_verdict table.now bytes.now) }
{
    code(verdict(table, bytes))
}
