//! What `check` says of a RAY that `presolve` wrote.

ghost use Rattle.proved_runs.specs.Rays.{WrittenRaysAreTaken};

use ray_check::laws::{no_is_no_ray, past_has_no_room};
use ray_text::written_ray_is_read;

/// A `presolve` wrote RAY. Then a `check` of IN and of RAY says yes, whether IN's numbers were read as decimal ones or as fractions; or that a
/// sum of its own has no room. It finds no fault in RAY, and says of none that it is no ray.
pub fn written_rays_are_taken()
    ensures { WrittenRaysAreTaken }
{
    written_ray_is_read();
    no_is_no_ray();
    past_has_no_room();
}
