//! Links, each of which knows the one before and the one after.
ghost use Rattle.std.specs.Prelude.{◌≡◌, ◌<◌, length};
ghost use Rattle.use_chain.specs.Links.{link_at, without_link, with_last_link};

use crate::uses::UseAt;

/// A link of a ring: the head of a list, or a use in it.
#[derive(Clone, Copy)]
pub struct Link {
    /// The link before.
    pub prev: usize,
    /// The link after.
    pub next: usize,
    /// The list.
    pub list: usize,
    /// Where the use is; at a head it means nothing.
    pub at: UseAt,
}

/// Takes a link out of its ring: the one before and the one after get to know each other.
pub fn take_out(links: &mut [Link], k: usize)
    requires within { k < length links.old }
    requires prev { (link_at links.old k).prev < length links.old }
    requires next { (link_at links.old k).next < length links.old }
    ensures { links.new ≡ without_link links.old k }
{
    let Link { prev, next, .. } = links[k];
    links[prev].next = next;
    links[next].prev = prev;
}

/// Puts a link last in a list, between the one that was last and the head, for a use.
pub fn put_last(links: &mut [Link], k: usize, list: usize, at: UseAt)
    requires within { k < length links.old }
    requires head { list < length links.old }
    requires last { (link_at links.old list).prev < length links.old }
    ensures { links.new ≡ with_last_link links.old k list at }
{
    let last = links[list].prev;
    links[last].next = k;
    links[list].prev = k;
    links[k] = Link {
        prev: last,
        next: list,
        list,
        at,
    };
}
