//! Laws about servers. A function does nothing: what it ensures follows from what a server is.

ghost use Rattle.name_service.specs.Laws as law;

/// Threads may share a server: nothing that it holds, its core among them, belongs to one thread.
pub fn servers_may_be_shared()
    ensures { law.MayBeShared }
{}
