// Estimation and then a query, with the third demand as the promise.
#![tactic(auto)]

ghost use Rattle.std.specs.Prelude.{◌≡◌, ℤ, Ok};
ghost use Rattle.lattice.specs.Outcome.{Outcome};
ghost use Rattle.estimate.specs.Estimate.{estimate_writes};
ghost use Rattle.evaluate.specs.Wants.{wanted};
ghost use Rattle.claims.specs.Third.{queried, both_calls, Claimed};
ghost use Rattle.claims.specs.Calls.{query_of, Gives};

use evaluate::{Derivative, Value};
use float_query::{FloatPosition, FloatReading};
use lattice::{FullShape, Refusal};
use query::{CellQuery, Query};

// A query by position, by cell and in-cell step, or by float.
#[derive(Clone, Copy)]
pub enum Question {
    Position([i32; 3]),
    Cell([u32; 3], [u32; 3]),
    Floats(FloatPosition),
}

// What a query gives.
#[derive(Clone, Copy)]
pub enum Answer {
    Whole(Result<Value, Refusal>),
    Float(FloatReading),
}

// The query that a question stands for.
fn ask(t: FullShape, records: &[i32], q: Question, derivative: Derivative) -> Answer
    ensures { Gives (wanted derivative) (Ok result) (queried t records.now (wanted derivative) (query_of q)) }
{
    match q {
        Question::Position(position) => {
            let query = Query {
                position,
                derivative,
            };
            Answer::Whole(query::at_position(t, records, query))
        }
        Question::Cell(cell, step) => {
            let query = CellQuery {
                cell,
                step,
                derivative,
            };
            Answer::Whole(query::in_cell(t, records, query))
        }
        Question::Floats(position) => {
            Answer::Float(float_query::at_float(t, records, position, derivative))
        }
    }
}

// Estimation, then a query, which is lent exactly the records that estimation wrote.
pub fn estimate_and_ask(
    t: FullShape,
    samples: &[i32],
    records: &mut [i32],
    q: Question,
    derivative: Derivative,
) -> Result<Answer, Refusal>
    ensures given { Gives (wanted derivative) result (both_calls t samples.now records.old (wanted derivative) (query_of q)) }
    ensures written { records.new ≡ estimate_writes t samples.now records.old }
    ensures claimed { (outcome : Outcome ℤ) → Gives (wanted derivative) result outcome → Claimed t samples.now records.old (wanted derivative) (query_of q) outcome }
{
    estimate::estimate(t, samples, records)?;
    let n = lattice::table_entries(t.shape);
    Ok(ask(t, &records[..n], q, derivative))
}
