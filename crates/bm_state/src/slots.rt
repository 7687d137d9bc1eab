//! Lists of values by number, where a number that has no value stands for a default.
ghost use Rattle.std.specs.Prelude.{◌≡◌, ◌<◌, ℕ, OnOk, if◌then◌else◌, ◌==◌, length};
ghost use Rattle.std.specs.Prelude.{slice_index_or};

use std::alloc::AllocError;

/// The value of this number.
pub(crate) fn value_at<T: Copy>(values: &[T], number: u32, default: T) -> T
    ensures { result ≡ slice_index_or values.now number default }
{
    let place = number as usize;
    if place < values.len() {
        values[place]
    } else {
        default
    }
}

/// Makes room for the number.
fn reach<T: Copy>(values: &mut Vec<T>, number: u32, default: T) -> Result<(), AllocError>
    ensures same { OnOk result ((q : ℕ) → slice_index_or values.new.items q default
        ≡ slice_index_or values.old.items q default) }
    ensures within { OnOk result (number < length values.new.items) }
{
    for _place in values.len()..number as usize + 1 {
        values.push(default)?;
    }
    Ok(())
}

/// Gives the number this value.
pub(crate) fn set_value<T: Copy>(
    values: &mut Vec<T>,
    number: u32,
    value: T,
    default: T,
) -> Result<(), AllocError>
    ensures { OnOk result ((q : ℕ) → slice_index_or values.new.items q default
        ≡ (if number == q then value else slice_index_or values.old.items q default)) }
{
    reach(values, number, default)?;
    values[number as usize] = value;
    Ok(())
}
