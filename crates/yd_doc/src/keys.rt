//! The keys of a parent.

ghost use Rattle.std.specs.Prelude.{◌≡◌, ◌<◌, [], map, length, slice_get, string_bytes, IfOk, OnOk, IfSome};
ghost use Rattle.yd_names.specs.Names.{IsOf, IsLastOf};
ghost use Rattle.yd_meaning.specs.Document.{Document, with_key};
ghost use Rattle.yd_arena.specs.Arena.{count_of};
ghost use Rattle.yd_listing.specs.Falling.{IsTold};
ghost use Rattle.yd_listing.specs.Listing.{Tells};
ghost use Rattle.yd_doc.specs.Kept.{own_document};
ghost use Rattle.yd_doc.specs.Keys.{is_used, with_name, with_names};

use crate::fault::NoMemory;
use crate::law::own_document_is_replicas;
use crate::replica::Replica;
use std::alloc::Global;
use std::collections::BTreeSet;
use yd_any::Text;
use yd_kept::Kept;
use yd_listing::list_at;
use yd_ops::Parent;
use yd_shown::law::keys_have_units;
use yd_state::ListView;

impl Replica {
    /// The keys under which a parent has units, deleted or not, in the order of their bytes. It takes a
    /// look-up by a hash, and looks at the lists of this parent alone.
    pub fn keys(&self, alloc: Global, parent: &Parent) -> Result<Vec<Text>, NoMemory>
        ensures { IfOk result (λ keys. keys.items ≡ (own_document self.now).keys parent.now) }
    {
        let kept = self.state.kept();
        let last = kept.last_of(parent, None);
        let keys = self.keys_from(alloc, kept, parent, last)?;
        Ok(keys)
    }

    /// The keys of a parent, where the last of its lists is known.
    pub(crate) fn keys_from(
        &self,
        alloc: Global,
        kept: &Kept,
        parent: &Parent,
        last: Option<usize>,
    ) -> Result<Vec<Text>, NoMemory>
        requires tells { Tells kept.now (own_document self.now) }
        requires told { IsTold kept.now }
        requires last { IsLastOf kept.now.names parent.now (length kept.now.names) last }
        requires within { IfSome last (λ n. n < count_of kept.now.store.placed) }
        ensures { IfOk result (λ keys. keys.items ≡ (own_document self.now).keys parent.now) }
    {
        own_document_is_replicas(self);
        keys_have_units();
        let found = keys_found(alloc, kept, parent, last)?;
        let keys = in_order(alloc, found)?;
        Ok(keys)
    }
}

/// The keys of the lists that are the parent's and have a unit, where the last of the parent's lists is
/// known. No other list is looked at.
fn keys_found(
    alloc: Global,
    kept: &Kept,
    parent: &Parent,
    last: Option<usize>,
) -> Result<BTreeSet<String>, NoMemory>
    requires told { IsTold kept.now }
    requires last { IsLastOf kept.now.names parent.now (length kept.now.names) last }
    requires within { IfSome last (λ n. n < count_of kept.now.store.placed) }
    ensures { IfOk result (λ found. (document : Document) → Tells kept.now document →
        map string_bytes found.keys ≡ with_names document parent.now kept.now.names []) }
{
    let mut found = BTreeSet::new(alloc);
    let mut next = last;
    while let Some(n) = next {
        add_used(alloc, kept, &mut found, n, parent)?;
        next = kept.last_of(parent, Some(n));
    }
    Ok(found)
}

/// Adds the key of the parent's list with a number, where it is under one and has a unit.
fn add_used(
    alloc: Global,
    kept: &Kept,
    found: &mut BTreeSet<String>,
    n: usize,
    parent: &Parent,
) -> Result<(), NoMemory>
    requires told { IsTold kept.now }
    requires own { IsOf kept.now.names parent.now n }
    requires within { n < count_of kept.now.store.placed }
    ensures { OnOk result ((document : Document) → Tells kept.now document →
        IfSome (slice_get kept.now.names n) (λ name.
        map string_bytes found.new.keys ≡ with_name document parent.now name
        (map string_bytes found.old.keys))) }
{
    let Some(key) = &kept.names()[n].key else {
        return Ok(());
    };
    if is_used(kept, n, parent) {
        add_key(alloc, found, key)?;
    }
    Ok(())
}

/// Whether the parent's list with a number has a unit.
fn is_used(kept: &Kept, n: usize, parent: &Parent) -> bool
    requires told { IsTold kept.now }
    requires own { IsOf kept.now.names parent.now n }
    requires within { n < count_of kept.now.store.placed }
    ensures { (document : Document) → Tells kept.now document →
        IfSome (slice_get kept.now.names n)
        (λ name. result ≡ is_used document parent.now name) }
{
    ListView::of_lent(list_at(kept, n)).last().is_some()
}

/// Adds a key.
fn add_key(alloc: Global, found: &mut BTreeSet<String>, key: &Text) -> Result<(), NoMemory>
    ensures { OnOk result (map string_bytes found.new.keys
        ≡ with_key key.now (map string_bytes found.old.keys)) }
{
    let key = String::from_str(alloc, key.as_str())?;
    let _is_new = found.insert(key)?;
    Ok(())
}

/// The keys of a set, in its order.
fn in_order(alloc: Global, found: BTreeSet<String>) -> Result<Vec<Text>, NoMemory>
    ensures { IfOk result (λ keys. keys.items ≡ map string_bytes found.keys) }
{
    let mut keys = Vec::new(alloc);
    for key in found {
        keys.push(Text::copy_of(alloc, key.as_str())?)?;
    }
    Ok(keys)
}
