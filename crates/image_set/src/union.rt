//! The union of two images.
ghost use Rattle.std.specs.Prelude.{◌≡◌, ◌+◌, ◌≤◌, ◌<◌, length, true, false, OnOk, OnErr, IfOk, IfErr};
ghost use Rattle.byte_map.specs.Image.{addresses, run_at, AreMaximal};
ghost use Rattle.byte_map.specs.Laying.{Lays, IsLayFault};
ghost use Rattle.image_set.specs.Fault.{fault_of};
ghost use Rattle.image_set.specs.Union.{swapped, IsUnion, IsUnionFault, IsUnited};

use crate::fault::ImageFault;
use byte_map::{ByteMap, LayFault};
use std::alloc::Global;

/// Adds the bytes of another image to one. If the two have unequal bytes, it answers the least such address, with the
/// byte of `into` as the old one. If it refuses, `into` is unchanged. If `into` is empty, `other` is taken as it is.
pub fn merge(alloc: Global, into: &mut ByteMap, other: ByteMap) -> Result<(), ImageFault>
    ensures ok { OnOk result (IsUnion into.old other into.new) }
    ensures refused { IfErr result (IsUnionFault into.old other) }
    ensures err { OnErr result (into.new ≡ into.old) }
{
    if into.runs() == 0 {
        *into = other;
        return Ok(());
    }
    let union = unite(alloc, into, &other)?;
    *into = union;
    Ok(())
}

/// The union of two images, by one pass over the runs of both in rising order.
fn unite(alloc: Global, image: &ByteMap, other: &ByteMap) -> Result<ByteMap, ImageFault>
    ensures ok { IfOk result (IsUnion image.now other.now) }
    ensures refused { IfErr result (IsUnionFault image.now other.now) }
{
    let mut union = ByteMap::new(alloc);
    let mut old = 0;
    for index in 0..image.runs() + other.runs() {
        old = lay_next(&mut union, image, old, other, index)?;
    }
    Ok(union)
}

/// Adds the next run of two images. `index` runs were added before, `old` of them from the first image. Answers how many
/// of the first image's runs are added now.
fn lay_next(
    union: &mut ByteMap,
    image: &ByteMap,
    old: usize,
    other: &ByteMap,
    index: usize,
) -> Result<usize, ImageFault>
    requires maximal { AreMaximal 0 addresses image.now × AreMaximal 0 addresses other.now }
    requires some { index < length image.now + length other.now }
    requires united { IsUnited image.now other.now index old union.old }
    ensures ok { IfOk result (λ next. IsUnited image.now other.now (index + 1) next union.new) }
    ensures refused { IfErr result (IsUnionFault image.now other.now) }
{
    let new = index - old;
    if comes_first(image, old, other, new) {
        match lay_run(union, image, old) {
            Ok(()) => Ok(old + 1),
            Err(fault) => Err(swapped(fault)),
        }
    } else {
        lay_run(union, other, new)?;
        Ok(old)
    }
}

/// Whether a run of one image comes before one of another.
fn comes_first(image: &ByteMap, old: usize, other: &ByteMap, new: usize) -> bool
    requires old { old ≤ length image.now }
    requires new { new ≤ length other.now }
    requires some { old + new < length image.now + length other.now }
    ensures old { result ≡ true → old < length image.now }
    ensures new { result ≡ false → new < length other.now }
{
    if new == other.runs() {
        return true;
    }
    if old == image.runs() {
        return false;
    }
    image.run(old).0 <= other.run(new).0
}

/// Adds a run of an image.
fn lay_run(union: &mut ByteMap, image: &ByteMap, index: usize) -> Result<(), LayFault>
    requires { index < length image.now }
    ensures ok { OnOk result (Lays (run_at image.now index) union.old union.new) }
    ensures refused { IfErr result (IsLayFault (run_at image.now index) union.old) }
{
    let (at, bytes) = image.run(index);
    union.lay(at, bytes)
}

/// The fault of a clash of two images, with the images in the other order.
fn swapped(fault: LayFault) -> ImageFault
    ensures { result ≡ fault_of (swapped fault) }
{
    match fault {
        LayFault::Conflict { at, old, new } => ImageFault::Conflict {
            at,
            old: new,
            new: old,
        },
        LayFault::PastEnd { at } => ImageFault::PastEnd { at },
        LayFault::OutOfMemory => ImageFault::OutOfMemory,
    }
}
