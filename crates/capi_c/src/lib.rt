// The static library that a C program links; include/rulebooks.h declares its functions.
#![tactic(auto)]

ghost use Rattle.std.specs.Prelude.{◌≡◌};
ghost use Rattle.capi.specs.Codes.{code_of, file_verdict};

// Whether the ruling of a table file accepts a record of up to 4,096 nodes: 1, 0, or minus the number of the refusal.
// The table is checked first.
#[unsafe(no_mangle)]
pub extern "C" fn judge(table: &[u8], bytes: &[u8]) -> i32
    ensures { result ≡ code_of (file_verdict table.now bytes.now) }
{
    capi::judge(table, bytes)
}
