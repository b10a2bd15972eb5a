//! Laws of handles: each is the clause of a function that does nothing.

ghost use Rattle.ptr_handles.specs.Handles.{TaggedHandleNamesItem};

/// The handle of an item names that item with any tag.
pub fn tagged_handle_names_item()
    ensures { TaggedHandleNamesItem }
{}
