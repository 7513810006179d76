// `thin` for C and Rust.

ghost use Rattle.door.specs.Thin.{ThinsLent};

// Thins the first `len` crumbs in place, and answers how many are left: `tolerance` becomes that of the
// last pass, and `passes` how many were made. A refusal answers 0, writes its number to `refused`, and
// changes nothing else.
pub fn cittumay_thin(
    crumbs: &mut [f32],
    len: usize,
    tolerance: &mut f32,
    passes: &mut usize,
    refused: &mut u8,
) -> usize
    ensures { ThinsLent len crumbs.old tolerance.old passes.old crumbs.new
        tolerance.new passes.new refused.new result }
{
    match thin::thin(crumbs, len, *tolerance) {
        Ok(thinned) => {
            *refused = 0;
            *tolerance = thinned.tolerance;
            *passes = thinned.passes;
            thinned.len
        }
        Err(refusal) => {
            *refused = refusal.number();
            0
        }
    }
}
