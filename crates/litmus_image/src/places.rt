//! The leaves of a test's threads.

ghost use Rattle.std.specs.Prelude.{◌≡◌, IfOk, option_copied};
ghost use Rattle.std.specs.List.{range_with_len};
ghost use Rattle.litmus_model.specs.Image.{judged_places, named_places, outside, places_of};
ghost use Rattle.litmus_image.specs.Made.{Makes};
ghost use Rattle.litmus_image.specs.declared.places.Unmade.TheVariants as unmade;

use elf_load::of_ddm_types::NoMemory;
use litmus_model::ImageRefusal;
use std::alloc::Global;

/// Why there is no image.
#[derive(Clone, Copy, Debug, PartialEq, Eq)]
pub enum Unmade {
    Refused(ImageRefusal),
    NoMemory,
}

impl From<NoMemory> for Unmade {
    ghost from_gives = { λ _ answer. answer ≡ unmade.NoMemory };

    fn from(_: NoMemory) -> Self {
        Unmade::NoMemory
    }
}

/// The first place that is no leaf.
#[tactic(auto, using(litmus_model::proofs::Searches::find_search), unfolding(litmus_model::specs::Image::outside))]
fn outside(leaves: u32, places: &[u32]) -> Option<u32>
    ensures { result ≡ outside leaves places.now }
{
    for place in places {
        if leaves <= *place {
            return Some(*place);
        }
    }
    None
}

fn copied(alloc: Global, places: &[u32]) -> Result<Vec<u32>, NoMemory>
    ensures { IfOk result (λ numbers. numbers.items ≡ places.now) }
{
    Ok(Vec::from_slice(alloc, places)?)
}

/// The numbers below `threads`.
#[tactic(auto, using(crate::proofs::Ranges::range_more))]
fn first_numbers(alloc: Global, threads: u32) -> Result<Vec<u32>, NoMemory>
    ensures { IfOk result (λ numbers. numbers.items ≡ range_with_len 0 threads) }
{
    let mut numbers = Vec::new(alloc);
    for number in 0..threads {
        numbers.push(number)?;
    }
    Ok(numbers)
}

fn judged_places(
    alloc: Global,
    threads: u32,
    leaves: u32,
    places: &[u32],
) -> Result<Vec<u32>, Unmade>
    ensures { Makes (judged_places threads leaves places.now) result }
{
    if places.len() != threads as usize {
        return Err(Unmade::Refused(ImageRefusal::OtherPlaces(threads)));
    }
    match outside(leaves, places) {
        Some(place) => Err(Unmade::Refused(ImageRefusal::NoLeaf(place))),
        None => Ok(copied(alloc, places)?),
    }
}

fn named_places(
    alloc: Global,
    threads: u32,
    leaves: u32,
    places: Option<&[u32]>,
) -> Result<Vec<u32>, Unmade>
    ensures { Makes (named_places threads leaves (option_copied places.entry)) result }
{
    match places {
        Some(places) => judged_places(alloc, threads, leaves, places),
        None => Ok(first_numbers(alloc, threads)?),
    }
}

/// The leaf of each thread: the one of its number, where no places are given.
#[tactic(auto, unfolding(litmus_model::specs::Image::places_of))]
pub(crate) fn places_of(
    alloc: Global,
    threads: u32,
    leaves: u32,
    places: Option<&[u32]>,
) -> Result<Vec<u32>, Unmade>
    ensures { Makes (places_of threads leaves (option_copied places.entry)) result }
{
    if leaves < threads {
        return Err(Unmade::Refused(ImageRefusal::TooManyThreads(threads)));
    }
    named_places(alloc, threads, leaves, places)
}
