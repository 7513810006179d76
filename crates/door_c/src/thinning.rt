// `thin` for C and Rust.

ghost use Rattle.door.specs.Thin.{ThinsLent};

use door::thinning;

// Thins the first `len` crumbs in place, and answers how many are left: `tolerance` becomes that of the
// last pass, and `passes` how many were made. A refusal answers 0, writes its number to `refused`, and
// changes nothing else.
#[unsafe(no_mangle)]
pub extern "C" fn cittumay_thin(
    crumbs: &mut [f32],
    len: usize,
    tolerance: &mut f32,
    passes: &mut usize,
    refused: &mut u8,
) -> usize
    ensures { ThinsLent len crumbs.old tolerance.old passes.old crumbs.new
        tolerance.new passes.new refused.new result }
{
    thinning::cittumay_thin(crumbs, len, tolerance, passes, refused)
}
