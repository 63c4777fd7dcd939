//! All that a demonstration is made of, except the bench.
ghost use Rattle.std.specs.Prelude.{◌≡◌, ◌≤◌, ◌+◌, ◌^◌, [], ◌∷◌, length, IfOk, IsTrue, None};
ghost use Rattle.board_file.specs.Shown.{shown as board_shown};
ghost use Rattle.flm_descriptor.specs.Shown.{shown as flm_shown};
ghost use Rattle.job_text.specs.Fits.{Suits};
ghost use Rattle.byte_map.specs.Image.{over};
ghost use Rattle.demo_job.specs.Made.{base};
ghost use Rattle.demo_job.specs.Fixture.{board_text};
ghost use Rattle.demo_job.specs.Scene.{IsScene};

use crate::fixture::{BOARD, Fixture, make_fixture};
use crate::made::{BASE, Made, make};
use faults::OutOfMemory;
use job_text::{JobParts, suits};
use std::alloc::Global;
use std::slice::from_ref;

/// What the seed makes, the fixture, and the cells with the image laid over them.
#[derive(Drop)]
pub(crate) struct Scene {
    pub(crate) made: Made,
    pub(crate) fixture: Fixture,
    pub(crate) goal: Vec<u8>,
}

/// The scene of a seed.
pub(crate) fn set_scene(alloc: Global, seed: u32) -> Result<Scene, OutOfMemory>
    ensures { IfOk result (IsScene seed) }
{
    let made = make(alloc, seed)?;
    let fixture = make_fixture(alloc)?;
    if !fits(&fixture, &made) {
        return Err(OutOfMemory);
    }
    let goal = goal(alloc, &made)?;
    Ok(Scene {
        made,
        fixture,
        goal,
    })
}

/// Whether the device of a fixture has exactly the cells, and board, algorithm and image suit one another. In a demonstration they do.
fn fits(fixture: &Fixture, made: &Made) -> bool
    ensures base { IsTrue result → fixture.now.algorithm.device.base ≡ base }
    ensures size { IsTrue result → fixture.now.algorithm.device.size ≡ length made.now.cells.items }
    ensures suits { IsTrue result → Suits (board_shown fixture.now.board) (flm_shown fixture.now.algorithm ∷ []) made.now.image }
{
    let device = &fixture.algorithm.device;
    device.base == BASE
        && device.size as usize == made.cells.len()
        && suits(&fixture.board, from_ref(&fixture.algorithm), &made.image)
}

/// The image laid over the cells.
fn goal(alloc: Global, made: &Made) -> Result<Vec<u8>, OutOfMemory>
    requires { base + length made.now.cells.items ≤ 2 ^ 32 }
    ensures { IfOk result (λ goal. goal.items ≡ over made.now.image base made.now.cells.items) }
{
    let mut goal = made.cells.to_vec(alloc)?;
    made.image.overlay_into(BASE, &mut goal);
    Ok(goal)
}

impl Scene {
    /// The parts of the job.
    #[tactic(auto, unfolding(crate::specs::Fixture::board_text))]
    pub(crate) fn parts(&self) -> JobParts<'_>
        ensures board { result.board.now ≡ board_text }
        ensures flm { result.flm.now ≡ self.now.fixture.flm }
        ensures second { result.second ≡ None }
        ensures image { result.image.now ≡ self.now.made.image }
        ensures size { result.size ≡ self.now.fixture.algorithm.device.size }
    {
        JobParts {
            board: BOARD,
            flm: self.fixture.flm.bytes(),
            second: None,
            image: &self.made.image,
            size: self.fixture.algorithm.device.size,
        }
    }
}
