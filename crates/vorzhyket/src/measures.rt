// The root, and the distance of two segments.
ghost use Rattle.std.specs.Prelude.{◌≡◌};
ghost use Rattle.geometry.specs.Root.{root_answer};
ghost use Rattle.geometry.specs.Segment.{closest_of};
ghost use Rattle.model.specs.Gaps.{points_of};
ghost use Rattle.vorzhyket.specs.Exported.{exported_closest, exported_root};

use geometry::edges::point_at;
use geometry::root::{BelowZero, root};
use geometry::segment::distance;

// The f32 nearest to the root of x in `out`, and 0; or 15 below zero, and `out` stays.
#[unsafe(no_mangle)]
pub extern "C" fn vz_root(x: f32, out: &mut f32) -> u32
    ensures { (result, out.new) ≡ exported_root (root_answer x) out.old }
{
    let r = root(x);
    match r {
        Ok(y) => {
            *out = y;
            0
        }
        Err(BelowZero) => 15,
    }
}

// The distance of two segments, each two points of three coordinates; in `places`, how far along each it is taken.
#[unsafe(no_mangle)]
pub extern "C" fn vz_distance(first: &[f32; 6], second: &[f32; 6], places: &mut [f32; 2]) -> f32
    ensures { (result, places.new)
        ≡ exported_closest (closest_of (points_of first.now) (points_of second.now)) }
{
    let p = point_at(first, 0);
    let q = point_at(first, 3);
    let r = point_at(second, 0);
    let s = point_at(second, 3);
    let closest = distance([p, q], [r, s]);
    *places = [closest.u, closest.v];
    closest.gap
}
