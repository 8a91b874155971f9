//! Lists of numbers.
use afp_base::{Moment, OutOfMemory};
use std::alloc::Global;
use test_lines::lines::number_of;

/// Appends a number, as often as is told behind a `*`.
fn append(part: &str, numbers: &mut Vec<u64>) -> Result<(), OutOfMemory> {
    let (number, times) = match part.split_once('*') {
        Some((number, times)) => (number, number_of(times)),
        None => (part, 1),
    };
    for _ in 0..times {
        numbers.push(number_of(number))?;
    }
    Ok(())
}

/// The numbers of a list.
pub fn numbers_of(alloc: Global, list: &str) -> Result<Vec<u64>, OutOfMemory> {
    let mut numbers = Vec::new(alloc);
    if list != "-" {
        for part in list.split(',') {
            append(part, &mut numbers)?;
        }
    }
    Ok(numbers)
}

/// The sizes of a list.
pub fn sizes_of(alloc: Global, list: &str) -> Result<Vec<usize>, OutOfMemory> {
    let mut sizes = Vec::new(alloc);
    for number in numbers_of(alloc, list)?.as_slice() {
        sizes.push(*number as usize)?;
    }
    Ok(sizes)
}

/// The moment of so many seconds; the first one, where there is none.
pub fn moment_of(seconds: u64) -> Moment {
    let first = Moment::new(0).unwrap();
    match u32::try_from(seconds) {
        Ok(seconds) => Moment::new(seconds).unwrap_or(first),
        Err(_) => first,
    }
}

/// The moments of a list.
pub fn moments_of(alloc: Global, list: &str) -> Result<Vec<Moment>, OutOfMemory> {
    let mut moments = Vec::new(alloc);
    for seconds in numbers_of(alloc, list)?.as_slice() {
        moments.push(moment_of(*seconds))?;
    }
    Ok(moments)
}
