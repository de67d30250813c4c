ghost use Rattle.std.specs.Prelude.{◌≡◌, ◌<◌, ◌++◌, ◌∷◌, [], IfOk, OnErr, OnOk, None, Some, length, map};
ghost use Rattle.linker_base.specs.Members.{IsMember};
ghost use Rattle.element_store.specs.Model.{Data};
ghost use Rattle.book_model.specs.Files.{model_at, name_at, stored, text_at};
ghost use Rattle.book_model.specs.Live.{HasModel, IsLiveMember, IsLiveReference};
ghost use Rattle.std.specs.Option.{option_copied, option_map};
ghost use Rattle.book_model.specs.Queries.{member_place, reference_place};
ghost use Rattle.book_model.specs.Readings.{fault_place};
ghost use Rattle.book_model.specs.Rows.{report_by, report_of};
ghost use Rattle.written_names.specs.Spellable.{AreNamesSpellable};
ghost use Rattle.project_files.specs.Kept.{ArePlacesWithin, MayKeep, StandsWithin};
ghost use Rattle.project_files.specs.Kept.{content_at, content_of, own_kept, reading_of, with_content_at};

use book_model::{FileReport, Place};
use element_store::{FileModel, FileNo, MemberNo, Models, RefNo, Text};
use linker_base::NoMemory;
use source_text::SourceText;
use std::alloc::Global;
use std::marker::Model;
use text_model::FileFault;

/// What is kept of a text that is present: the text, and its fault, if it isn't in the profile.
#[derive(Drop)]
pub struct Kept {
    pub text: SourceText,
    pub fault: Option<FileFault>,
}

/// What is kept of the text of a file, if it is present.
fn kept_at(contents: &[Option<Kept>], file: FileNo) -> Option<&Kept>
    ensures { option_copied result ≡ own_kept contents.now file.0 }
{
    contents.get(file.0 as usize)?.as_ref()
}

/// The place of a fault, in bytes. Want of memory has none.
fn place_of_fault(fault: FileFault) -> u32
    ensures { result ≡ fault_place fault }
{
    match fault {
        FileFault::Encoding(place)
        | FileFault::Token(place)
        | FileFault::TooDeep(place)
        | FileFault::Syntax(place)
        | FileFault::Limit(place) => place,
        FileFault::NoMemory => 0,
    }
}

/// What is known of a text, by what is kept of it and its model.
fn report_of(kept: &Kept, model: &FileModel) -> FileReport
    requires { StandsWithin kept.now }
    ensures { result
        ≡ report_by kept.now.text (reading_of kept.now.fault (Some model.now)) }
{
    match kept.fault {
        Some(fault) => FileReport::Refused {
            fault,
            place: kept.text.place(place_of_fault(fault)),
        },
        None => FileReport::In {
            elements: model.elements() - 1,
            references: model.references(),
        },
    }
}

/// The files of a project, those of its library first, then those of its book in order of arrival. A
/// file's number is its place among them. Contracts see the files.
#[derive(Drop)]
pub struct ProjectFiles {
    models: Models,
    contents: Vec<Option<Kept>>,
}

impl Model for ProjectFiles {
    ghost use Rattle.std.specs.Prelude.{List};
    ghost use Rattle.book_model.specs.Files.{ProjectFile};
    ghost use Rattle.project_files.specs.Kept.{AreKept, files_of};

    ghost Value = { List ProjectFile };

    ghost view = { λ p. files_of p.models p.contents.items };

    ghost invariant = { λ p. AreKept p.models p.contents.items };
}

impl ProjectFiles {
    /// No files, which takes no memory.
    pub fn new(alloc: Global) -> ProjectFiles
        ensures { result ≡ [] }
    {
        ProjectFiles {
            models: Models::new(alloc),
            contents: Vec::new(alloc),
        }
    }

    /// How many files there are.
    pub fn count(&self) -> u32
        ensures { result ≡ length self.now }
    {
        self.models.files()
    }

    /// Adds a file without a text and gives its number, which is the count of the files before it. After
    /// `NoMemory` the files are as they were.
    pub fn add(&mut self, name: Text, library: bool) -> Result<FileNo, NoMemory>
        requires fresh { IsMember (map (λ f. f.name) self.old) name → ⊥ }
        requires room { length self.old < 4294967295 }
        ensures number { IfOk result (λ n. n.0 ≡ length self.old) }
        ensures added { OnOk result (self.new ≡ self.old
            ++ record { name = name; library = library; content = None } ∷ []) }
        ensures err { OnErr result (self.new ≡ self.old) }
    {
        // The room for what is kept is taken first, so that want of memory changes nothing.
        self.contents.reserve(1)?;
        let number = self.models.add(name, library)?;
        self.contents.push(None)?;
        Ok(number)
    }

    /// Keeps a text under a file, with its model: that of the text, or where the text has a fault that of
    /// an empty file.
    pub fn put(&mut self, file: FileNo, kept: Kept, model: FileModel)
        requires stands { file.0 < length self.old }
        requires may { MayKeep file (name_at self.old file) kept model }
        ensures { self.new ≡ with_content_at self.old file.0 (content_of (Some model) (Some kept)) }
    {
        self.models.set(file, Some(model));
        self.contents[file.0 as usize] = Some(kept);
    }

    /// Lets the text of a file go, and its model with it. The file stays.
    pub fn clear(&mut self, file: FileNo)
        requires stands { file.0 < length self.old }
        ensures { self.new ≡ with_content_at self.old file.0 None }
    {
        self.models.set(file, None);
        self.contents[file.0 as usize] = None;
    }

    /// Lends the models, which links see.
    pub fn models(&self) -> &Models
        ensures { result.now ≡ stored self.now }
    {
        &self.models
    }

    /// Lends the name of a file.
    pub fn name(&self, file: FileNo) -> &Text
        requires { file.0 < length self.now }
        ensures { result.now ≡ name_at self.now file }
    {
        self.models.name(file)
    }

    /// Lends the model of a file that has one.
    pub fn model(&self, file: FileNo) -> &FileModel
        requires { (d : Data) × HasModel self.now file d }
        ensures model { result.now ≡ model_at self.now file }
        ensures spellable { AreNamesSpellable result.now }
    {
        let Some(model) = self.models.model(file) else {
            unreachable!()
        };
        model
    }

    /// How many bytes the text of a file has, if it is present.
    pub fn size(&self, file: FileNo) -> Option<usize>
        ensures { result ≡ option_map (λ c. length c.text) (content_at self.now file) }
    {
        match kept_at(&self.contents, file) {
            Some(kept) => Some(kept.text.bytes().len()),
            None => None,
        }
    }

    /// What is known of the text of a file, if it is present: how much its model holds, or its fault with
    /// the fault's place.
    pub fn report(&self, file: FileNo) -> Option<FileReport>
        ensures { result ≡ option_map report_of (content_at self.now file) }
    {
        match kept_at(&self.contents, file) {
            Some(kept) => match self.models.model(file) {
                Some(model) => Some(report_of(kept, model)),
                None => unreachable!(),
            },
            None => None,
        }
    }

    /// Lends the text of a file that has a model.
    fn text(&self, file: FileNo) -> &SourceText
        requires { (d : Data) × HasModel self.now file d }
        ensures text { result.now ≡ text_at self.now file }
        ensures places { ArePlacesWithin result.now (model_at self.now file) }
    {
        match &self.contents[file.0 as usize] {
            Some(kept) => &kept.text,
            None => unreachable!(),
        }
    }

    /// The line and the column of the first token of a member, its visibility word included.
    pub fn member_place(&self, member: MemberNo) -> Place
        requires { IsLiveMember self.now member }
        ensures { result ≡ member_place self.now member }
    {
        let at = self.model(member.file).place_of_member(member.index);
        self.text(member.file).place(at)
    }

    /// The line and the column of the first token of a reference.
    pub fn reference_place(&self, reference: RefNo) -> Place
        requires { IsLiveReference self.now reference }
        ensures { result ≡ reference_place self.now reference }
    {
        let at = self
            .model(reference.file)
            .place_of_reference(reference.index);
        self.text(reference.file).place(at)
    }
}
