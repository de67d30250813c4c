ghost use Rattle.std.specs.Prelude.{◌≡◌, All as Each, IfOk, Some, map};
ghost use Rattle.std.specs.Option.{option_map};
ghost use Rattle.book_model.specs.Files.{Content, stored};
ghost use Rattle.book_model.specs.Live.{IsLiveReference};
ghost use Rattle.book_model.specs.Queries.{links_over};
ghost use Rattle.book_model.specs.Rows.{rows_of};
ghost use Rattle.project_files.specs.Kept.{content_at};
ghost use Rattle.project_answers.specs.Holds.{all_linked};
ghost use Rattle.project_answers.specs.RowLines.{reference_at};
ghost use Rattle.linked_project.specs.Listed.{IsLiveRow, spot_row};

use book_model::LinkRows;
use element_store::{FileNo, RefNo};
use linker_base::NoMemory;
use project_answers::{Linking, Spot, rising, row_of};
use project_files::ProjectFiles;
use std::alloc::Global;

/// The rows of the references at these spots of a file, in their order.
fn rows_of<G: Linking>(
    alloc: Global,
    files: &ProjectFiles,
    links: &G,
    file: FileNo,
    spots: &[Spot],
) -> Result<LinkRows, NoMemory>
    requires stand { Each (λ s. IsLiveReference files.now (reference_at file s)) spots.now }
    requires over { G.follows links.now ≡ all_linked (stored files.now) }
    ensures { IfOk result (λ rows. rows ≡ map (spot_row files.now file) spots.now) }
{
    let mut rows = LinkRows::new(alloc);
    for spot in spots {
        let reference = RefNo {
            file,
            index: spot.number,
        };
        rows.push(row_of(files, links, reference)?)?;
    }
    Ok(rows)
}

/// The rows of a file whose text is present, in rising place.
pub(crate) fn link_rows<G: Linking>(
    alloc: Global,
    files: &ProjectFiles,
    links: &G,
    file: FileNo,
) -> Result<LinkRows, NoMemory>
    requires present { (c : Content) × (content_at files.now file ≡ Some c) }
    requires over { G.follows links.now ≡ all_linked (stored files.now) }
    ensures rows { IfOk result (λ rows. Some rows
        ≡ option_map (rows_of (links_over files.now)) (content_at files.now file)) }
    ensures live { IfOk result (λ rows. Each (IsLiveRow files.now) rows) }
{
    // A look at the models tells what holds of all files.
    let _ = files.models().files();
    let spots = rising(alloc, files.model(file))?;
    rows_of(alloc, files, links, file, &spots)
}
