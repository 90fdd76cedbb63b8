// Calls of the index, each compared with what the plain map and the second writing of the paper say.
#![tactic(auto)]

pub mod calls;
pub mod loading;
pub mod saving;
pub mod states;

use comparisons::{Request, answers, judged};
use images::memory::Image;
use images::packing::Answer;
use plainmap::PlainMap;
use reports::Round;
use reports::faults::Fault;

// Makes a search or an update on a sound table and the map, and compares the answer and what is left.
pub fn made(image: &mut Image, map: &mut PlainMap, request: Request) -> Round {
    let found = *image;
    let shared = map.most_shared(request.label);
    let said = calls::make(image, request);
    let plain = answers::on_map(map, request);
    Round {
        said: compare(&found, image, map, request, shared, said, plain),
        given: said.ok(),
        reached: said.is_ok_and(|said| answers::reached(&found, request.label, shared, said)),
    }
}

fn compare(
    found: &Image,
    left: &Image,
    map: &PlainMap,
    request: Request,
    shared: usize,
    said: Result<Answer, Fault>,
    plain: Answer,
) -> Result<Answer, Fault> {
    let said = said?;
    answers::compare(found, request, shared, said, plain)?;
    states::compare(found, left, map, request.call, said)?;
    Ok(said)
}

// Makes any call on any memory, which stays, and compares the answer and what is left with the second writing's; where
// the memory is sound, a search's and a charge call's answer also with the map's, and an update's counts with the bytes
// shared. Whether its search reached the bound is not told.
pub fn tried(image: &Image, request: Request) -> Round {
    let mut left = *image;
    let said = calls::make(&mut left, request);
    Round {
        said: judge(image, &left, request, said),
        given: said.ok(),
        reached: false,
    }
}

fn judge(
    found: &Image,
    left: &Image,
    request: Request,
    said: Result<Answer, Fault>,
) -> Result<Answer, Fault> {
    let said = said?;
    judged::compare(found, left, request, said)?;
    Ok(said)
}
