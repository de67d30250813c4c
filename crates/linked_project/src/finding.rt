ghost use Rattle.std.specs.Prelude.{◌≡◌, IfOk};
ghost use Rattle.book_model.specs.Files.{stored};
ghost use Rattle.book_model.specs.Live.{NamesLive};
ghost use Rattle.book_model.specs.Queries.{find_query};
ghost use Rattle.project_answers.specs.Holds.{all_linked};
ghost use Rattle.project_answers.specs.Words.{IsGoodName};

use book_model::AskedName;
use element_store::Outcome;
use linker_base::NoMemory;
use project_answers::Linking;
use project_files::ProjectFiles;

/// What a qualified name finds.
pub(crate) fn found<G: Linking>(
    files: &ProjectFiles,
    links: &G,
    name: AskedName,
) -> Result<Outcome, NoMemory>
    requires good { IsGoodName name }
    requires over { G.follows links.now ≡ all_linked (stored files.now) }
    ensures found { IfOk result (λ outcome. outcome ≡ find_query files.now name.path) }
    ensures live { IfOk result (NamesLive files.now) }
{
    let models = files.models();
    // A look at the models tells what holds of all files.
    let _ = models.files();
    links.find(models, name.path)
}
