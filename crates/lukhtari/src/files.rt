// Table files, read and written.
ghost use Rattle.std.specs.Prelude.{◌≡◌, length};
ghost use Rattle.table_file.specs.File.{header};
ghost use Rattle.lattice.specs.Answers.{outcome_of};
ghost use Rattle.table_file.specs.Answers.{outcome_of_header};
ghost use Rattle.lukhtari.specs.Calls.{reply, left, read_file, write_file};
ghost use Rattle.lukhtari.specs.Host.{table_from, written_from};

use crate::keys::Right;
use crate::{Index, Table, Written, keys};
use lattice::Refusal;
use table_file::Header;

impl From<Result<Header, Refusal>> for Table {
    ghost from_gives = { λ answer table. table ≡ table_from (outcome_of_header answer) };

    fn from(answer: Result<Header, Refusal>) -> Self {
        match answer {
            Ok(header) => {
                let counts = header.counts;
                Table {
                    number: 0,
                    place: 0,
                    axes: header.axes,
                    counts,
                    steps: lattice::finest_steps(header.axes),
                    second_edition: header.second_edition,
                }
            }
            Err(refusal) => Table {
                number: refusal.reason.number(),
                place: refusal.place,
                axes: 0,
                counts: [0, 0, 0],
                steps: [0, 0, 0],
                second_edition: false,
            },
        }
    }
}

impl From<Result<usize, Refusal>> for Written {
    ghost from_gives = { λ answer written. written ≡ written_from (outcome_of answer) };

    fn from(answer: Result<usize, Refusal>) -> Self {
        match answer {
            Ok(length) => Written {
                number: 0,
                place: 0,
                length,
            },
            Err(refusal) => Written {
                number: refusal.reason.number(),
                place: refusal.place,
                length: 0,
            },
        }
    }
}

// A table file, its samples to the front of `samples`.
#[unsafe(no_mangle)]
pub extern "C" fn lukhtari_read(key: u32, bytes: &[u8], samples: &mut [i32]) -> Table
    ensures value { result ≡ reply key (read_file bytes.now) samples.old }
    ensures samples_after { samples.new ≡ left key (read_file bytes.now) samples.old }
{
    match keys::check(key, Right::Read) {
        Ok(()) => Table::from(table_file::read(bytes, samples)),
        Err(refusal) => Table::from(Err(refusal)),
    }
}

// A table as a file, to the front of `bytes`.
#[unsafe(no_mangle)]
pub extern "C" fn lukhtari_write(
    key: u32,
    axes: u32,
    counts: Index,
    steps: Index,
    second_edition: bool,
    samples: &[i32],
    bytes: &mut [u8],
) -> Written
    ensures value { result ≡ reply key (write_file (header axes counts.at steps.at second_edition) samples.now) bytes.old }
    ensures bytes_after { bytes.new ≡ left key (write_file (header axes counts.at steps.at second_edition) samples.now) bytes.old }
{
    let counts = counts.at;
    let header = Header {
        axes,
        counts,
        second_edition,
    };
    match keys::check(key, Right::Write) {
        Ok(()) => Written::from(table_file::write(header, steps.at, samples, bytes)),
        Err(refusal) => Written::from(Err(refusal)),
    }
}
