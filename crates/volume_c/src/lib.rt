// Where a client block of a volume lies, for C callers (include/volume.h): the routine of `volume` under its C name, with its promise.
#![tactic(auto)]

ghost use Rattle.std.specs.Prelude.{◌≡◌};
ghost use Rattle.volume.specs.ClientPlaces.{settings_with, place_with, place_given};

// The stripe and the data block of a client block, into a buffer of two numbers. Refused: 1 a setting, 2 a buffer of another length, 13 a
// block that the volume does not have.
#[unsafe(no_mangle)]
pub extern "C" fn volume_place(
    n: usize,
    m: usize,
    size: usize,
    capacity: usize,
    stripes: usize,
    block: usize,
    place: &mut [usize],
) -> u32
    ensures { place_with result place.new ≡ place_given (settings_with n m size capacity stripes) block place.old }
{
    let placed = volume::volume_place(n, m, size, capacity, stripes, block, place);
    settings::number_of(placed)
}
