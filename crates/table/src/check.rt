ghost use Rattle.std.specs.Prelude.{◌≡◌};
ghost use Rattle.ruling.specs.Checks.{Answers};
ghost use Rattle.table.specs.TableFiles.{TableFile, table_fault, file_meaning};
ghost use Rattle.table.specs.FileParts.{FaultsTold};

use super::head::check_head;
use ruling::Refusal;

// Whether these bytes are a table file: 4, 2, 3, marks, 5, cells. The answer is its number of states.
#[tactic(auto, using(crate::specs::Faults::faults_told))]
pub fn check_table(bytes: &[u8]) -> Result<u16, Refusal>
    ensures answer { Answers (table_fault bytes.now) (λ n. TableFile bytes.now × (n ≡ (file_meaning bytes.now).states)) result }
    ensures told { FaultsTold }
{
    let head = check_head(bytes)?;
    head.check_kinds()?;
    head.check_marks()?;
    let blocks = head.check_directory()?;
    blocks.check_cells()?;
    Ok(blocks.state_count())
}
