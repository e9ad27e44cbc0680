//! What a builder keeps.
ghost use Rattle.read_building.specs.Turns.{IsHeld};
ghost use Rattle.read_building.specs.Props.{IsHeld-prop};

use crate::frame::Frame;
use crate::stage::Stage;
use std::alloc::Global;

/// Builds one item after the other from pieces of any size. For contracts `state_in` is the state of the machine that builds.
#[derive(Drop)]
pub struct Builder {
    pub(crate) alloc: Global,
    pub(crate) stage: Stage,
    pub(crate) frames: Vec<Frame>,
    pub(crate) held: Vec<u8>,
    ghost kept: { IsHeld stage held.items } by { IsHeld-prop stage held.items },
}
