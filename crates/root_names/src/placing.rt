//! Puts the public members of a file's root among those of other files.
ghost use Rattle.std.specs.Prelude.{◌≡◌, ◌<◌, ◌≤◌, ℕ, true, not, nat_eq, insert, length, slice_get, OnOk, OnErr, []};
ghost use Rattle.std.specs.Cmp.Lexicographic.{pointwise};
ghost use Rattle.std.specs.List.{flat_map, list_all};
ghost use Rattle.element_store.specs.declared.numbers.MemberNo.{MemberNo};
ghost use Rattle.element_store.specs.BaseRules.{model_of};
ghost use Rattle.element_store.specs.Condition.{item_stands};
ghost use Rattle.element_store.specs.Model.{is_name, bears};
ghost use Rattle.element_store.specs.Numbers.{chosen};
ghost use Rattle.root_names.specs.Steps.{stand_so, is_behind, put_before, repeats, shows, shown_by};
ghost use Rattle.root_names.specs.Steps.{own_roots, roots_in, IsPut, IsPartly, HasOthers, IsAsBefore};

use crate::root_table::RootTable;
use crate::taking::take_roots;
use element_store::{FileModel, FileNo, Item, Member, MemberNo, Models, Name, Visibility};
use linker_base::NoMemory;
use std::alloc::Global;

// Whether a file stands before another, where both are there.
fn stands_before(models: &Models, file: FileNo, other: FileNo) -> bool
    requires file { file.0 < length models.now }
    requires other { other.0 < length models.now }
    ensures { result ≡ stand_so (slice_get models.now file.0) (slice_get models.now other.0) }
{
    if models.is_library(file) == models.is_library(other) {
        models.name(file).bytes() < models.name(other).bytes()
    } else {
        !models.is_library(file)
    }
}

// Whether the file of a member stands behind a file. It does not where no file has one of the numbers.
fn is_behind(models: &Models, file: FileNo, member: MemberNo) -> bool
    ensures { result ≡ is_behind models.now file member }
{
    let count = models.files();
    if file.0 >= count {
        return false;
    }
    if member.file.0 >= count {
        return false;
    }
    stands_before(models, file, member.file)
}

// The place of a file's next member among members: before the first whose file stands behind it.
fn place_of(models: &Models, members: &[MemberNo], file: FileNo) -> usize
    ensures within { result ≤ length members.now }
    ensures place { (m : MemberNo) →
        insert members.now result m ≡ put_before (is_behind models.now file) m members.now }
{
    for (place, member) in members.iter().enumerate() {
        if is_behind(models, file, *member) {
            return place;
        }
    }
    members.len()
}

// Puts a member in under a name. After `NoMemory` all is as it was.
fn put_at(
    table: &mut RootTable,
    alloc: Global,
    models: &Models,
    name: &[u8],
    member: MemberNo,
) -> Result<(), NoMemory>
    ensures ok { OnOk result (IsPut (is_behind models.now member.file)
        (λ x. chosen (pointwise nat_eq x name.now) member []) table.old table.new) }
    ensures err { OnErr result (IsAsBefore table.old table.new) }
{
    let place = place_of(models, table.members(name), member.file);
    table.insert(alloc, name, place, member)
}

// Puts a member in under a name, if there is one. After `NoMemory` all is as it was.
fn put_named(
    table: &mut RootTable,
    alloc: Global,
    models: &Models,
    name: &Option<Name>,
    member: MemberNo,
) -> Result<(), NoMemory>
    ensures ok { OnOk result (IsPut (is_behind models.now member.file)
        (λ x. chosen (is_name x name.now) member []) table.old table.new) }
    ensures err { OnErr result (IsAsBefore table.old table.new) }
{
    match name {
        Some(name) => put_at(table, alloc, models, name.bytes(), member),
        None => Ok(()),
    }
}

// Whether both names of a member are the same one.
fn repeats(member: &Member) -> bool
    ensures { result ≡ repeats member.now }
{
    match (&member.short, &member.name) {
        (Some(short), Some(name)) => short == name,
        _ => false,
    }
}

// Puts a member in under each of its names.
fn put_names(
    table: &mut RootTable,
    alloc: Global,
    models: &Models,
    member: &Member,
    number: MemberNo,
) -> Result<(), NoMemory>
    ensures ok { OnOk result (IsPut (is_behind models.now number.file)
        (λ x. chosen (bears x member.now) number []) table.old table.new) }
    ensures err { OnErr result (IsPartly number.file
        (λ x. chosen (bears x member.now) number []) table.old table.new) }
{
    put_named(table, alloc, models, &member.short, number)?;
    if repeats(member) {
        return Ok(());
    }
    put_named(table, alloc, models, &member.name, number)?;
    Ok(())
}

// Puts a member in under each of its names, if it is public.
fn put_member(
    table: &mut RootTable,
    alloc: Global,
    models: &Models,
    member: &Member,
    number: MemberNo,
) -> Result<(), NoMemory>
    ensures ok { OnOk result (IsPut (is_behind models.now number.file)
        (λ x. chosen (shows x member.now) number []) table.old table.new) }
    ensures err { OnErr result (IsPartly number.file
        (λ x. chosen (shows x member.now) number []) table.old table.new) }
{
    match member.visibility {
        Visibility::Public => put_names(table, alloc, models, member, number),
        Visibility::Private | Visibility::Protected => Ok(()),
    }
}

// Puts the member of a root's item in under each of its names, if it is public.
fn put_item(
    table: &mut RootTable,
    alloc: Global,
    models: &Models,
    model: &FileModel,
    file: FileNo,
    item: Item,
) -> Result<(), NoMemory>
    requires { item_stands model.now item ≡ true }
    ensures ok { OnOk result (IsPut (is_behind models.now file)
        (λ x. shown_by x file model.now item) table.old table.new) }
    ensures err { OnErr result (IsPartly file
        (λ x. shown_by x file model.now item) table.old table.new) }
{
    match item {
        Item::Member(index) => {
            let number = MemberNo { file, index };
            put_member(table, alloc, models, model.member(index), number)
        }
        Item::Import(_) => Ok(()),
    }
}

// So the members of items, in order.
fn put_items(
    table: &mut RootTable,
    alloc: Global,
    models: &Models,
    model: &FileModel,
    file: FileNo,
    items: &[Item],
) -> Result<(), NoMemory>
    requires { list_all (item_stands model.now) items.now ≡ true }
    ensures ok { OnOk result (IsPut (is_behind models.now file)
        (λ x. flat_map (shown_by x file model.now) items.now) table.old table.new) }
    ensures err { OnErr result (IsPartly file
        (λ x. flat_map (shown_by x file model.now) items.now) table.old table.new) }
{
    for item in items {
        put_item(table, alloc, models, model, file, *item)?;
    }
    Ok(())
}

// Puts the public members of a model's root in. After `NoMemory` some may be in.
fn put_roots(
    table: &mut RootTable,
    alloc: Global,
    models: &Models,
    model: &FileModel,
    file: FileNo,
) -> Result<(), NoMemory>
    requires { 0 < length model.now.elements }
    ensures ok { OnOk result (IsPut (is_behind models.now file)
        (roots_in file model.now) table.old table.new) }
    ensures err { OnErr result (IsPartly file (roots_in file model.now) table.old table.new) }
{
    put_items(table, alloc, models, model, file, model.items(0).as_slice())
}

// Puts those of a model in, or leaves all as it was.
fn put_or_restore(
    table: &mut RootTable,
    alloc: Global,
    models: &Models,
    model: &FileModel,
    file: FileNo,
) -> Result<(), NoMemory>
    requires root { 0 < length model.now.elements }
    requires others { HasOthers file table.old }
    ensures ok { OnOk result (IsPut (is_behind models.now file)
        (roots_in file model.now) table.old table.new) }
    ensures err { OnErr result (IsAsBefore table.old table.new) }
{
    match put_roots(table, alloc, models, model, file) {
        Ok(()) => Ok(()),
        Err(error) => {
            take_roots(table, model, file);
            Err(error)
        }
    }
}

/// Puts the public members of a file's root into a table that has none of the file, each before the
/// first member of a file that stands behind. After `NoMemory` all is as it was.
pub fn put_file(
    table: &mut RootTable,
    alloc: Global,
    models: &Models,
    file: FileNo,
) -> Result<(), NoMemory>
    requires { HasOthers file table.old }
    ensures ok { OnOk result (IsPut (is_behind models.now file)
        (own_roots file (model_of models.now file.0)) table.old table.new) }
    ensures err { OnErr result (IsAsBefore table.old table.new) }
{
    match models.model(file) {
        Some(model) => put_or_restore(table, alloc, models, model, file),
        None => Ok(()),
    }
}
