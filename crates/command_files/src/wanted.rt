//! What the files of a command want of the cells.
ghost use Rattle.std.specs.Prelude.{◌≡◌, ◌≤◌, ◌<◌, ◌∷◌, ◌++◌, length, drop, option_to_list, IsSome, OnOk, IfOk, IfErr};
ghost use Rattle.std.specs.Result.{result_map_both};
ghost use Rattle.board_file.specs.Limits.{most_regions, size_of};
ghost use Rattle.board_file.specs.Shown as board_shown;
ghost use Rattle.flm_descriptor.specs.Shown as flm_shown;
ghost use Rattle.image_set.specs.Ranges.{LiesInside, IsPlaceFault};
ghost use Rattle.report_text.specs.Refusal.{out_of_memory, usage};
ghost use Rattle.report_text.specs.Shown.{shown};
ghost use Rattle.command_words.specs.Names.{names_of};
ghost use Rattle.command_words.specs.Requested.{files_of};
ghost use Rattle.command_files.specs.Files.{others_of, ranges_of};
ghost use Rattle.command_files.specs.Refused.{LeavesNoImage};
ghost use Rattle.command_files.specs.Steps.{bytes_of, ReadsBoard, ReadsOne, ReadsAlgorithms, ChecksAlgorithm, Adds, IsAddFault, ReadsImages, ReadsFiles};

use crate::take::Files;
use algo_loader::{NoRoom, place};
use board_file::{Board, BoardFault, Region, read_board};
use byte_map::ByteMap;
use command_words::{FileNames, Names};
use flm_descriptor::{Algorithm, read_flm};
use image_more::{AnyFault, read_any};
use image_set::{ImageFault, check_ranges, merge};
use octets::Bytes;
use report_text::Refusal;
use std::alloc::Global;

/// The longest text of a board that is parsed: 1 MiB. Parsing takes some forty times a text's length of memory.
const LONGEST_BOARD: usize = 1_048_576;

/// An image for the cells of a board's regions, and an algorithm for each region if the command has FLM files.
#[derive(Drop)]
pub struct Wanted {
    pub board: Board,
    pub algorithms: Vec<Algorithm>,
    pub image: ByteMap,
}

/// Reads the board, then an FLM file for each of its regions where the command has one, and then each image in turn. It checks that the
/// images' union lies in the board's regions. Where FLM files leave no name for an image, that is answered after the board was read. A
/// board's text longer than 1 MiB is answered as out of memory.
pub fn read_files<'a>(
    alloc: Global,
    names: &FileNames<'a>,
    files: &Files,
) -> Result<Wanted, Refusal<'a>>
    requires { length files.now.images.items ≡ length (names_of names.now.images) }
    ensures { ReadsFiles (files_of names.now) (bytes_of files.now) result }
{
    let board = read_text(alloc, files.board.bytes())?;
    let others = count_others(&board, files)?;
    let images = files.images.as_slice();
    let algorithms = read_algorithms(alloc, &board, &files.flm, &images[..others])?;
    let rest = files_from(images, others);
    let image_names = names_from(names.images, others);
    let image = read_images(alloc, names.raw_at, &image_names, rest)?;
    match check_place(&image, board.regions.as_slice()) {
        Ok(()) => Ok(Wanted {
            board,
            algorithms,
            image,
        }),
        Err(fault) => Err(Refusal::ImageMisplaced { fault }),
    }
}

/// How many cells the regions of a board have together.
pub fn cells_of(board: &Board) -> u32
    ensures { result ≡ size_of board.now.regions }
{
    let regions = board.regions.as_slice();
    if regions.len() == 1 {
        return regions[0].size;
    }
    regions[0].size + regions[1].size
}

/// Reads the text of a board. A text longer than 1 MiB is answered as out of memory, and no memory is asked for.
pub fn read_text<'a>(alloc: Global, text: &[u8]) -> Result<Board, Refusal<'a>>
    ensures { ReadsBoard text.now result }
{
    if text.len() > LONGEST_BOARD {
        return Err(Refusal::OutOfMemory);
    }
    match read_board(alloc, text) {
        Ok(board) => Ok(board),
        Err(BoardFault::OutOfMemory) => Err(Refusal::OutOfMemory),
        Err(fault) => Err(Refusal::BoardRefused { fault }),
    }
}

/// How many FLM files follow the first: one for each further region of the board, where there is a first. At least one name is left for an
/// image.
fn count_others<'a>(board: &Board, files: &Files) -> Result<usize, Refusal<'a>>
    ensures count { IfOk result (λ others. others ≡ others_of files.now.flm board.now.regions) }
    ensures inside { IfOk result (λ others. others ≤ length files.now.images.items) }
    ensures enough { IfOk result (λ _. IsSome files.now.flm → length board.now.regions ≤ length files.now.images.items) }
    ensures err { IfErr result (λ e. shown e ≡ usage) }
    ensures none { IfErr result (λ _. LeavesNoImage (bytes_of files.now) (board_shown.shown board.now)) }
{
    if files.flm.is_none() {
        return Ok(0);
    }
    let regions = board.regions.as_slice().len();
    if files.images.len() < regions {
        return Err(Refusal::Usage);
    }
    Ok(regions - 1)
}

/// The files from number `from` on.
fn files_from(files: &[Bytes], from: usize) -> &[Bytes]
    requires { from ≤ length files.now }
    ensures { result.now ≡ drop from files.now }
{
    &files[from..]
}

/// The names from number `from` on.
fn names_from(names: Names<'_>, from: usize) -> Names<'_>
    requires { from ≤ length (names_of names) }
    ensures { names_of result ≡ drop from (names_of names.entry) }
{
    let words = names.words;
    Names {
        words: &words[from..],
    }
}

/// Reads the FLM files, if there is a first one: that one, and those for the board's further regions. Each must fit its region.
pub fn read_algorithms<'a>(
    alloc: Global,
    board: &Board,
    first: &Option<Bytes>,
    others: &[Bytes],
) -> Result<Vec<Algorithm>, Refusal<'a>>
    requires { length others.now ≡ others_of first.now board.now.regions }
    ensures { ReadsAlgorithms (board_shown.shown board.now) (option_to_list first.now ++ others.now) (result_map_both (λ v. v.items) (λ e. e) result) }
{
    let Some(first) = first else {
        return Ok(Vec::new(alloc));
    };
    let regions = board.regions.as_slice();
    let one = read_one(alloc, board, &regions[0], first.bytes())?;
    if regions.len() == 1 {
        return gather(alloc, one, None);
    }
    let other = read_one(alloc, board, &regions[1], others[0].bytes())?;
    gather(alloc, one, Some(other))
}

/// A list of one algorithm, or of two.
fn gather<'a>(
    alloc: Global,
    one: Algorithm,
    other: Option<Algorithm>,
) -> Result<Vec<Algorithm>, Refusal<'a>>
    ensures ok { IfOk result (λ v. v.items ≡ one ∷ option_to_list other) }
    ensures err { IfErr result (λ e. shown e ≡ out_of_memory) }
{
    let mut algorithms = Vec::new(alloc);
    if algorithms.push(one).is_err() {
        return Err(Refusal::OutOfMemory);
    }
    if let Some(other) = other {
        if algorithms.push(other).is_err() {
            return Err(Refusal::OutOfMemory);
        }
    }
    Ok(algorithms)
}

/// Reads an FLM file, which must fit a region.
fn read_one<'a>(
    alloc: Global,
    board: &Board,
    region: &Region,
    file: &[u8],
) -> Result<Algorithm, Refusal<'a>>
    ensures { ReadsOne (board_shown.shown board.now) region.now file.now result }
{
    let algorithm = read_flm(alloc, file)?;
    check_algorithm(board, region, &algorithm)?;
    Ok(algorithm)
}

/// Checks that an algorithm fits a region, and that the board's RAM has room for it.
fn check_algorithm<'a>(
    board: &Board,
    region: &Region,
    algorithm: &Algorithm,
) -> Result<(), Refusal<'a>>
    ensures { ChecksAlgorithm (board_shown.shown board.now) region.now (flm_shown.shown algorithm.now) result }
{
    let base = algorithm.device.base;
    let size = algorithm.device.size;
    if base != region.base || size != region.size {
        return Err(Refusal::OtherDevice { base, size });
    }
    match place(algorithm, board) {
        Ok(_) => Ok(()),
        Err(NoRoom { need, have }) => Err(Refusal::NoRoom { need, have }),
    }
}

/// Checks that an image has a byte, and none outside the regions. There are one or two regions.
fn check_place(image: &ByteMap, regions: &[Region]) -> Result<(), ImageFault>
    requires some { 0 < length regions.now }
    requires few { length regions.now ≤ most_regions }
    ensures ok { OnOk result (LiesInside image.now (ranges_of regions.now)) }
    ensures refused { IfErr result (IsPlaceFault image.now (ranges_of regions.now)) }
{
    let first = (regions[0].base, regions[0].size);
    if regions.len() == 1 {
        return check_ranges(image, &[first]);
    }
    check_ranges(image, &[first, (regions[1].base, regions[1].size)])
}

/// Reads the images in turn, and adds each to those before it.
fn read_images<'a>(
    alloc: Global,
    raw_at: Option<u32>,
    names: &Names<'a>,
    files: &[Bytes],
) -> Result<ByteMap, Refusal<'a>>
    requires { length files.now ≡ length (names_of names.now) }
    ensures { ReadsImages raw_at (names_of names.now) files.now result }
{
    let mut image = ByteMap::new(alloc);
    for index in 0..files.len() {
        match add_image(alloc, raw_at, files[index].bytes(), &mut image) {
            Ok(()) => {}
            Err(AnyFault::OutOfMemory) => return Err(Refusal::OutOfMemory),
            Err(fault) => {
                return Err(Refusal::ImageRefused {
                    name: names.name(index),
                    fault,
                });
            }
        }
    }
    Ok(image)
}

/// Reads one image, and adds it to another.
fn add_image(
    alloc: Global,
    raw_at: Option<u32>,
    file: &[u8],
    into: &mut ByteMap,
) -> Result<(), AnyFault>
    ensures ok { OnOk result (Adds raw_at file.now into.old into.new) }
    ensures err { IfErr result (IsAddFault raw_at file.now into.old) }
{
    let image = read_any(alloc, file, raw_at)?;
    merge(alloc, into, image)?;
    Ok(())
}
