// Two lattices pooled by weight.
ghost use Rattle.std.specs.Prelude.{◌≡◌};
ghost use Rattle.pool.specs.Pool.{measured};
ghost use Rattle.lukhtari.specs.Calls.{reply, left, pool_two};

use crate::keys::Right;
use crate::{Done, keys};
use lattice::FullShape;
use pool::Measured;

// The pooled samples of two lattices, a of weight v and b of weight w, to the front of `out`.
#[unsafe(no_mangle)]
pub extern "C" fn lukhtari_pool(
    key: u32,
    a: FullShape,
    xs: &[i32],
    v: u32,
    b: FullShape,
    ys: &[i32],
    w: u32,
    out: &mut [i32],
) -> Done
    ensures value { result ≡ reply key (pool_two (measured a xs.now v) (measured b ys.now w)) out.old }
    ensures out_after { out.new ≡ left key (pool_two (measured a xs.now v) (measured b ys.now w)) out.old }
{
    let first = Measured {
        shape: a,
        samples: xs,
        weight: v,
    };
    let second = Measured {
        shape: b,
        samples: ys,
        weight: w,
    };
    match keys::check(key, Right::Pool) {
        Ok(()) => Done::from(pool::pool(first, second, out)),
        Err(refusal) => Done::from(Err(refusal)),
    }
}
