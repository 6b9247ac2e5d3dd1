// Tables typed as decimal text.
ghost use Rattle.std.specs.Prelude.{◌≡◌};
ghost use Rattle.lukhtari.specs.Calls.{reply, left, import_text};

use crate::keys::Right;
use crate::{Done, keys};
use lattice::FullShape;

// The samples of a text.
#[unsafe(no_mangle)]
pub extern "C" fn lukhtari_import(
    key: u32,
    shape: FullShape,
    text: &[u8],
    samples: &mut [i32],
) -> Done
    ensures value { result ≡ reply key (import_text shape text.now) samples.old }
    ensures samples_after { samples.new ≡ left key (import_text shape text.now) samples.old }
{
    match keys::check(key, Right::Import) {
        Ok(()) => Done::from(import::import(shape, text, samples)),
        Err(refusal) => Done::from(Err(refusal)),
    }
}
