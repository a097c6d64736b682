// The writer of the job file.
#![tactic(auto)]

ghost use Rattle.std.specs.Prelude.{◌≡◌};
ghost use Rattle.format.specs.Tables.{write_result};
ghost use Rattle.file_blocks.specs.Due.{as_head};
ghost use Rattle.writer_checks.specs.Held.{held};
ghost use Rattle.writer.specs.Outcome.{outcome_of};

mod block;
mod file;
mod records;

use file::put_file;
use refusals::Refusal;
use writer_checks::Tables;
use writer_checks::refusal::write_refusal;
use writer_checks::sizes::file_length;

// Writes the file of the job that the tables hold into the buffer, and answers its length; or refuses it and leaves the buffer as it was.
pub fn write(tables: &Tables, out: &mut [u8]) -> Result<usize, Refusal>
    ensures { outcome_of result out.new ≡ write_result (as_head tables.now.head) (held tables.now) out.old }
{
    write_refusal(tables, out)?;
    put_file(tables, out);
    Ok(file_length(tables.head))
}
