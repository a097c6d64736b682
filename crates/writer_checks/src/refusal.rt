// The writer's refusal: "The writer checks 20, 4, 6, 7, 8", then 9.
ghost use Rattle.std.specs.Prelude.{◌≡◌};
ghost use Rattle.refusals.specs.Numbers.{number};
ghost use Rattle.format.specs.Refusals.{job_refusal};
ghost use Rattle.format.specs.Tables.{write_refusal, Long};
ghost use Rattle.file_blocks.specs.Due.{as_head};
ghost use Rattle.writer_checks.specs.Held.{held, job_held};

use crate::Tables;
use crate::codes::last_refusal;
use crate::records::bad_records;
use crate::sizes::short_writer;
use file_blocks::plan::bad_sizes;
use refusals::Refusal;

// 4, 6, 7, 8, 9 or no refusal, of tables that are long enough.
pub fn job_refusal(tables: &Tables) -> Result<(), Refusal>
    requires { Long (as_head tables.now.head) (held tables.now) }
    ensures { number result ≡ job_refusal (job_held tables.now) }
{
    if bad_sizes(tables.head) {
        return Err(Refusal::BadSizes);
    }
    if bad_records(tables) {
        return Err(Refusal::BadRecord);
    }
    last_refusal(tables)
}

// The writer's refusal of any tables.
pub fn write_refusal(tables: &Tables, out: &[u8]) -> Result<(), Refusal>
    ensures { number result ≡ write_refusal (as_head tables.now.head) (held tables.now) out.now }
{
    if short_writer(tables, out) {
        return Err(Refusal::LentShort);
    }
    job_refusal(tables)
}
