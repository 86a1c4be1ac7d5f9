//! A pool for tests.

ghost use Rattle.std.specs.Prelude.{◌≡◌, replicate};
ghost use Rattle.bm_page.specs.Stock.{unborn};
ghost use Rattle.bm_post.specs.Kept.{IsRoomy};

use bm_page::Pool;
use std::process::Abort;

/// A pool of one page, none of whose units has lived.
pub(crate) fn one_page(rt: &(impl Abort + AllocGlobal)) -> Pool
    ensures roomy { IsRoomy result }
    ensures units { result.units ≡ replicate 256 unborn }
{
    Pool::create(rt.alloc(), 1).expect(rt, "memory")
}
