ghost use Rattle.std.specs.Prelude.{◌≡◌, ◌≤◌, ◌++◌, length, drop, None};
ghost use Rattle.ruling.specs.Checks.{Answers, Kept};
ghost use Rattle.table.specs.TableFiles.{table_fault, file_meaning};
ghost use Rattle.encoder.specs.Tables.{table_meaning, Equal};
ghost use Rattle.encoder.specs.Encodings.{room_fault, table_bytes, FilesRead};

use super::table_in_memory::Table;
use ruling::Refusal;

const EDITION: u8 = 1;

// The length of the file of a table.
pub fn encoded_len(table: &Table) -> usize
    ensures { result ≡ length (table_bytes table.now.inner) }
{
    table.body_at() + table.cells_len()
}

// Writes the file, part after part.
fn write_table(table: &Table, file: &mut [u8])
    requires { length file.old ≡ length (table_bytes table.now.inner) }
    ensures { file.new ≡ table_bytes table.now.inner }
{
    let kinds = table.inner.count;
    let states = table.inner.states;
    let (head, rest) = file.split_at_mut(4);
    let (ranks, rest) = rest.split_at_mut(kinds as usize);
    let (marks, rest) = rest.split_at_mut(states as usize);
    let (directory, blocks) = rest.split_at_mut(4 * kinds as usize);
    head.copy_from_slice(&[EDITION, states, kinds, 0]);
    ranks.copy_from_slice(table.ranks());
    table.write_marks(marks);
    table.write_directory(directory);
    table.write_blocks(blocks);
}

// Writes the file of a table into the buffer, and answers its length; 13 where the buffer is shorter. What is written passes
// the check, and means the table.
#[tactic(auto, using(crate::proofs::Encoded::passes, crate::proofs::Encoded::means))]
pub fn encode(table: &Table, out: &mut [u8]) -> Result<usize, Refusal>
    ensures answer { Answers (room_fault (length (table_bytes table.now.inner)) (length out.old)) (λ n. (n ≡ length (table_bytes table.now.inner)) × (out.new ≡ table_bytes table.now.inner ++ drop (length (table_bytes table.now.inner)) out.old)) result }
    ensures kept { Kept result out.old out.new }
    ensures passes { table_fault (table_bytes table.now.inner) ≡ None }
    ensures means { Equal (file_meaning (table_bytes table.now.inner)) (table_meaning table.now.inner) }
    ensures read { FilesRead }
{
    let need = encoded_len(table);
    if out.len() < need {
        return Err(Refusal::BufferTooShort(need));
    }
    write_table(table, &mut out[..need]);
    Ok(need)
}
