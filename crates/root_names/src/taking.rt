//! Takes the public members of a file's root away from those of other files.
ghost use Rattle.std.specs.Prelude.{◌≡◌, ◌<◌, ℕ, List, true, nat_eq, length, []};
ghost use Rattle.std.specs.List.{flat_map, list_all};
ghost use Rattle.element_store.specs.BaseRules.{model_of};
ghost use Rattle.element_store.specs.Condition.{item_stands};
ghost use Rattle.element_store.specs.Model.{is_name, bears};
ghost use Rattle.element_store.specs.Numbers.{chosen};
ghost use Rattle.root_names.specs.Roots.{bearing};
ghost use Rattle.root_names.specs.Steps.{left, numbered, shows, shown_by, own_roots, roots_in, IsTaken};

use crate::root_table::RootTable;
use element_store::{FileModel, FileNo, Item, Member, Models, Name, Visibility};

// Takes a file's members away from under a name, if there is one.
fn take_named(table: &mut RootTable, name: &Option<Name>, file: FileNo)
    ensures { (x : List ℕ) →
        bearing table.new x ≡ left file (is_name x name.now) (bearing table.old x) }
{
    match name {
        Some(name) => table.remove(name.bytes(), file),
        None => {}
    }
}

// Takes a file's members away from under the names of a member.
fn take_names(table: &mut RootTable, member: &Member, file: FileNo)
    ensures { (x : List ℕ) →
        bearing table.new x ≡ left file (bears x member.now) (bearing table.old x) }
{
    take_named(table, &member.short, file);
    take_named(table, &member.name, file);
}

// So under those of a public member.
fn take_member(table: &mut RootTable, member: &Member, file: FileNo)
    ensures { (x : List ℕ) →
        bearing table.new x ≡ left file (shows x member.now) (bearing table.old x) }
{
    match member.visibility {
        Visibility::Public => take_names(table, member, file),
        Visibility::Private | Visibility::Protected => {}
    }
}

// So under those of the public member of a root's item.
fn take_item(table: &mut RootTable, model: &FileModel, file: FileNo, item: Item)
    requires { item_stands model.now item ≡ true }
    ensures { IsTaken file (λ x. shown_by x file model.now item) table.old table.new }
{
    match item {
        Item::Member(index) => take_member(table, model.member(index), file),
        Item::Import(_) => {}
    }
}

// So the members of items.
fn take_items(table: &mut RootTable, model: &FileModel, file: FileNo, items: &[Item])
    requires { list_all (item_stands model.now) items.now ≡ true }
    ensures { IsTaken file (λ x. flat_map (shown_by x file model.now) items.now)
        table.old table.new }
{
    for item in items {
        take_item(table, model, file, *item);
    }
}

/// Takes a file's members away from under each name that a public member of a model's root bears.
pub fn take_roots(table: &mut RootTable, model: &FileModel, file: FileNo)
    requires { 0 < length model.now.elements }
    ensures { IsTaken file (roots_in file model.now) table.old table.new }
{
    take_items(table, model, file, model.items(0).as_slice());
}

/// So under the names of a file's root, if it has a model.
pub fn take_file(table: &mut RootTable, models: &Models, file: FileNo)
    ensures { IsTaken file (own_roots file (model_of models.now file.0)) table.old table.new }
{
    match models.model(file) {
        Some(model) => take_roots(table, model, file),
        None => {}
    }
}
