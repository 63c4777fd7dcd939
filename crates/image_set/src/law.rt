//! Laws of image files. They need no body.
ghost use Rattle.std.specs.Prelude.{◌≡◌, ◌≢◌, ℕ, List, Option};
ghost use Rattle.byte_map.specs.Image.{Run};
ghost use Rattle.image_set.specs.declared.fault.ImageFault.{ImageFault};
ghost use Rattle.image_set.specs.declared.fault.ImageFault.TheVariants.{OutOfMemory};
ghost use Rattle.image_set.specs.Read.{IsImage, IsFault};

/// A file stands for at most one image.
pub fn files_have_one_image()
    ensures { (raw_at : Option ℕ) (bytes : List ℕ) (one two : List Run) → IsImage raw_at bytes one → IsImage raw_at bytes two → one ≡ two }
{}

/// A file that stands for an image has no fault but out of memory.
pub fn images_have_no_fault()
    ensures { (raw_at : Option ℕ) (bytes : List ℕ) (image : List Run) (fault : ImageFault) → IsImage raw_at bytes image
        → IsFault raw_at bytes fault → fault ≡ OutOfMemory }
{}

/// A file has at most one fault besides out of memory.
pub fn files_have_one_fault()
    ensures { (raw_at : Option ℕ) (bytes : List ℕ) (one two : ImageFault) → IsFault raw_at bytes one → IsFault raw_at bytes two → one ≢ OutOfMemory
        → two ≢ OutOfMemory → one ≡ two }
{}
