//! The store: the objects on a card.

ghost use Rattle.std.specs.Prelude.{◌≡◌, ◌-◌, ◌<◌, ℕ, true, false, [], Some, length, replicate, slice_get, take};
ghost use Rattle.std.specs.Prelude.{IfOk, IfSome, IfNone};
ghost use Rattle.jc_store.specs.Blocks.{HasCells, components_in, components_of, part_in, with_cells};
ghost use Rattle.jc_store.specs.Heap.{Object, cells_in, cleared, next_number, object_at, with_cell, with_object};
ghost use Rattle.jc_store.specs.Store.{HasCell, IsFull, IsOwn, IsReference, IsThere, class_number_at, fresh};
ghost use Rattle.jc_store.specs.Store.{with_made, with_objects};
ghost use Rattle.jc_store.specs.PrivateLaid.{HasRoom};

use crate::block::{copy_part, fill_part, part_of, put_part, some_of};
use crate::clearing::clear_objects;
use crate::header::{Head, Rest, cell_at, fast_of, head_at, head_or_null, rest_at};
use crate::kind::{ClearingEvent, ObjectKind};
use jc_names::Owner;
use std::alloc::{AllocError, Global};
use std::marker::Model;

/// The objects on a card, by numbers from 1 on. All their memory is reserved when the store is made; no other call
/// allocates.
#[derive(Drop)]
pub struct Store {
    heads: Vec<Head>,
    rests: Vec<Rest>,
    cells: Vec<u16>,
    used: u16,
    most_objects: u16,
    most_cells: u16,
}

impl Model for Store {
    ghost use Rattle.std.specs.Prelude.{vec_capacity, vec_len};
    ghost use Rattle.jc_store.specs.PrivateLaid.{IsStored, classes_in, headers_of, objects_in};
    ghost use Rattle.jc_store.specs.Store.{Store as Objects};

    ghost Value = { Objects };

    ghost view = { λ s. record {
      objects = objects_in s.cells.items (headers_of s.heads.items s.rests.items);
      classes = classes_in (headers_of s.heads.items s.rests.items);
      most_objects = s.most_objects;
      most_cells = s.most_cells;
    } };

    ghost invariant = { λ s. IsStored s.heads.items s.rests.items s.cells.items (record {
      heads = vec_len s.heads;
      head_room = vec_capacity s.heads;
      headers = vec_len s.rests;
      room = vec_capacity s.rests;
      cells = vec_len s.cells;
      used = s.used;
      most_objects = s.most_objects;
      most_cells = s.most_cells;
    }) };
}

impl Store {
    /// A store without objects, with room for this many objects and cells: an object takes one cell, and one for each
    /// of its components.
    pub fn new(alloc: Global, objects: u16, cells: u16) -> Result<Store, AllocError>
        ensures { IfOk result (λ s.
            s ≡ record { objects = []; classes = []; most_objects = objects; most_cells = cells }) }
    {
        let mut heads = Vec::with_capacity(alloc, usize::from(objects) + 1)?;
        heads.push_reserved(Head::NULL);
        let rests = Vec::with_capacity(alloc, usize::from(objects))?;
        let words = vec![in alloc; 0; usize::from(cells)]?;
        Ok(Store {
            heads,
            rests,
            cells: words,
            used: 0,
            most_objects: objects,
            most_cells: cells,
        })
    }

    /// Makes an object whose components are 0, if there is room for it, and returns its number. It keeps the number
    /// `class` that the caller gives for the object's class; its meaning is the caller's matter.
    #[inline(always)]
    pub fn make(&mut self, kind: ObjectKind, owner: Owner, len: usize, class: u16) -> Option<u16>
        ensures number { IfSome result (λ number. number ≡ next_number self.old.objects) }
        ensures made { IfSome result (λ number. self.new ≡ with_made self.old (fresh kind owner len) class) }
        ensures numbered { IfSome result (λ number. class_number_at self.new.classes number ≡ Some class) }
        ensures room { IfSome result (λ number. IsFull self.old len → ⊥) }
        ensures full { IfNone result (IsFull self.old len) }
        ensures kept { IfNone result (self.new ≡ self.old) }
    {
        if !self.has_room(len) {
            return None;
        }
        let head = Head {
            start: self.used,
            len: len as u16,
            class,
            fast: fast_of(kind.clears, owner),
        };
        self.heads.push_reserved(head);
        self.rests.push_reserved(Rest { kind, owner });
        self.used += len as u16;
        Some(self.rests.len() as u16)
    }

    // Whether there is room for one more object with `len` components.
    #[inline]
    fn has_room(&self, len: usize) -> bool
        ensures room { result ≡ true → HasRoom self.now len }
        ensures full { result ≡ false → IsFull self.now len }
    {
        let objects = self.rests.len();
        let left = usize::from(self.most_cells) - usize::from(self.used) - objects;
        objects < usize::from(self.most_objects) && len < left
    }

    /// The kind of an object.
    #[inline]
    pub fn kind_of(&self, number: u16) -> ObjectKind
        requires there { IsThere self.now number }
        ensures { (object : Object ℕ) → object_at self.now.objects number ≡ Some object → result ≡ object.kind }
    {
        rest_at(&self.rests, number).kind
    }

    /// Whether there is an object with a number. Number 0 is no object's.
    #[inline]
    pub fn is_there(&self, number: u16) -> bool
        ensures yes { result ≡ true → IsThere self.now number }
        ensures no { result ≡ false → object_at self.now.objects number ≡ None }
    {
        number != 0 && number <= self.objects_used()
    }

    /// The owner of an object.
    #[inline]
    pub fn owner_of(&self, number: u16) -> Owner
        requires there { IsThere self.now number }
        ensures { (object : Object ℕ) → object_at self.now.objects number ≡ Some object → result ≡ object.owner }
    {
        rest_at(&self.rests, number).owner
    }

    /// The number that the caller gave for an object's class.
    #[inline]
    pub fn class_number(&self, number: u16) -> u16
        requires there { IsThere self.now number }
        ensures { class_number_at self.now.classes number ≡ Some result }
    {
        head_at(&self.heads, number).class
    }

    /// Whether an object is a context's own: its owner's context is that one, and it isn't cleared on deselect. Then
    /// the context may access it in every way. Null is no context's own.
    #[inline]
    pub fn is_own(&self, number: u16, context: u8) -> bool
        requires there { IsReference self.now number }
        ensures own { result ≡ true → IsOwn self.now number context }
        ensures other { result ≡ false → IsOwn self.now number context → ⊥ }
    {
        head_at(&self.heads, number).fast == u16::from(context)
    }

    /// How many components an object has.
    #[inline]
    pub fn len(&self, number: u16) -> u16
        requires there { IsThere self.now number }
        ensures { (object : Object ℕ) → object_at self.now.objects number ≡ Some object → result ≡ length object.cells }
    {
        head_at(&self.heads, number).len
    }

    /// How many components the objects before an object have. The components of all objects lie one after the other, in
    /// order, so this is where its own begin. A reader of many at a time may begin where its words are aligned.
    #[inline]
    pub fn components_before(&self, number: u16) -> u16
        requires there { IsThere self.now number }
        ensures { result ≡ components_in (take (number - 1) self.now.objects) }
    {
        head_at(&self.heads, number).start
    }

    /// The component of an object at an index.
    #[inline]
    pub fn get(&self, number: u16, index: u16) -> u16
        requires there { HasCell self.now number index }
        ensures { (object : Object ℕ) → object_at self.now.objects number ≡ Some object
            → slice_get object.cells index ≡ Some result }
    {
        let head = head_at(&self.heads, number);
        cell_at(&self.cells, head, index)
    }

    /// Sets the component of an object at an index.
    #[inline]
    pub fn set(&mut self, number: u16, index: u16, word: u16)
        requires there { HasCell self.old number index }
        ensures { (object : Object ℕ) → object_at self.old.objects number ≡ Some object
            → self.new ≡ with_objects self.old (with_object self.old.objects number (with_cell object index word)) }
    {
        let head = head_at(&self.heads, number);
        self.cells[usize::from(head.start) + usize::from(index)] = word;
    }

    /// The components of an object; none if there is no object with the number.
    #[inline]
    pub fn components(&self, number: u16) -> &[u16]
        ensures { result.now ≡ components_of self.now.objects number }
    {
        let head = head_or_null(&self.heads, number);
        part_of(&self.cells, head)
    }

    /// The `count` components of an object from an index on.
    #[inline]
    pub fn part(&self, number: u16, index: usize, count: usize) -> &[u16]
        requires there { HasCells self.now number index count }
        ensures { (object : Object ℕ) → object_at self.now.objects number ≡ Some object
            → result.now ≡ part_in object index count }
    {
        let head = head_at(&self.heads, number);
        some_of(&self.cells, head, index, count)
    }

    /// Fills the `count` components of an object from an index on with a word.
    #[inline]
    pub fn fill(&mut self, number: u16, index: usize, count: usize, word: u16)
        requires there { HasCells self.old number index count }
        ensures { (object : Object ℕ) → object_at self.old.objects number ≡ Some object
            → self.new ≡ with_objects self.old (with_object self.old.objects number
            (with_cells object index (replicate count word))) }
    {
        let head = head_at(&self.heads, number);
        fill_part(&mut self.cells, head, index, count, word);
    }

    /// Writes bytes to components of an object, one to each, from an index on.
    #[inline]
    pub fn put_bytes(&mut self, number: u16, index: usize, bytes: &[u8])
        requires there { HasCells self.old number index (length bytes.now) }
        ensures { (object : Object ℕ) → object_at self.old.objects number ≡ Some object
            → self.new ≡ with_objects self.old (with_object self.old.objects number
            (with_cells object index bytes.now)) }
    {
        let head = head_at(&self.heads, number);
        put_part(&mut self.cells, head, index, bytes);
    }

    /// Copies `count` components of an object to those of another, from indexes on; source and target may overlap.
    #[inline]
    pub fn copy(
        &mut self,
        source: u16,
        source_index: usize,
        target: u16,
        target_index: usize,
        count: usize,
    )
        requires source { HasCells self.old source source_index count }
        requires target { HasCells self.old target target_index count }
        ensures { (from to : Object ℕ) → object_at self.old.objects source ≡ Some from
            → object_at self.old.objects target ≡ Some to
            → self.new ≡ with_objects self.old (with_object self.old.objects target
            (with_cells to target_index (part_in from source_index count))) }
    {
        let from = head_at(&self.heads, source);
        let to = head_at(&self.heads, target);
        copy_part(&mut self.cells, from, source_index, to, target_index, count);
    }

    /// How many objects there are. Each has a number for its class.
    #[inline]
    pub fn objects_used(&self) -> u16
        ensures objects { result ≡ length self.now.objects }
        ensures classes { result ≡ length self.now.classes }
    {
        self.rests.len() as u16
    }

    /// How many cells they take: one each, and one for each of their components.
    #[inline]
    pub fn cells_used(&self) -> u16
        ensures { result ≡ cells_in self.now.objects }
    {
        self.used + self.rests.len() as u16
    }

    /// Clears the transient arrays that an event clears, of one context or of all: sets their components to 0.
    pub fn clear(&mut self, event: ClearingEvent, context: Option<u8>)
        ensures { self.new ≡ with_objects self.old (cleared (λ kind. 0) event context self.old.objects) }
    {
        clear_objects(&self.heads, &self.rests, &mut self.cells, event, context);
    }
}
