//! The controllers that are driven.

use crate::files::board;
use anyhow::Result;
use board_file::{ControllerKind, SectorRun};
use flash_driver::{Driver, Registers, State};
use flash_layout::{Area, FlashMap};
use std::alloc::Global;

/// Two areas apart from each other: 4 cells in units of 2, and 4 cells in units of 4 that are 0 when they are erased.
fn layout<R: Registers>(alloc: Global, kind: ControllerKind) -> Result<FlashMap> {
    let first = Area {
        base: 0x0800_0000,
        size: 4,
        empty: 0xFF,
        unit: 2,
    };
    let second = Area {
        base: 0x0800_0100,
        size: 4,
        empty: 0,
        unit: 4,
    };
    let run = SectorRun { count: 1, size: 4 };
    Ok(FlashMap {
        kind,
        areas: vec![in alloc; first, second]?,
        runs: vec![in alloc; run, run]?,
        base: 0x4002_2000,
        block: R::block(kind),
        program_ticks: 1,
        erase_ticks: 2,
        chip_ticks: 3,
        quiet: Vec::new(alloc),
    })
}

/// A controller over two areas, as after a reset. It runs no operation.
fn over_areas<R: Registers>(alloc: Global, kind: ControllerKind) -> Result<Driver<R>> {
    let layout = layout::<R>(alloc, kind)?;
    let registers = R::fresh(kind);
    let operation = None;
    Ok(Driver {
        layout,
        state: State {
            registers,
            operation,
        },
    })
}

/// The controller of a board's file, or that over two areas.
pub fn driver<R: Registers>(
    rt: &HostRuntime,
    kind: ControllerKind,
    name: &str,
) -> Result<Driver<R>> {
    if name == "areas" {
        return over_areas(rt.alloc(), kind);
    }
    let board = board(rt, name)?;
    Ok(Driver::new(rt.alloc(), &board)?)
}
