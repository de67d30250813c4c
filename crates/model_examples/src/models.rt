ghost use Rattle.std.specs.Prelude.{◌≡◌, IfOk};
ghost use Rattle.model_examples.specs.Worked as worked;

use crate::drawing::model;
use crate::library_sketches::{COLORS, LIBRARY};
use crate::sketches::{NAMES, REDEFINING, VEHICLES};
use element_store::{FileModel, FileNo};
use linker_base::NoMemory;
use std::alloc::Global;

pub fn vehicles(alloc: Global, file: FileNo) -> Result<FileModel, NoMemory>
    ensures { IfOk result (λ made. made ≡ worked.vehicles file) }
{
    model(alloc, file, &VEHICLES)
}

pub fn names(alloc: Global, file: FileNo) -> Result<FileModel, NoMemory>
    ensures { IfOk result (λ made. made ≡ worked.names file) }
{
    model(alloc, file, &NAMES)
}

pub fn redefinings(alloc: Global, file: FileNo) -> Result<FileModel, NoMemory>
    ensures { IfOk result (λ made. made ≡ worked.redefinings file) }
{
    model(alloc, file, &REDEFINING)
}

pub fn library(alloc: Global, file: FileNo) -> Result<FileModel, NoMemory>
    ensures { IfOk result (λ made. made ≡ worked.library file) }
{
    model(alloc, file, &LIBRARY)
}

pub fn colors(alloc: Global, file: FileNo) -> Result<FileModel, NoMemory>
    ensures { IfOk result (λ made. made ≡ worked.colors file) }
{
    model(alloc, file, &COLORS)
}
