// The walk along one variable's updates, by which all questions about them are answered.
ghost use Rattle.std.specs.Iterator.{YieldsFirst, item_count};
ghost use Rattle.pools.specs.Chain.{left};

use crate::Update;

// What is left of a walk: the link to the next update, and the places that it may lead to.
#[derive(Drop)]
pub struct Updates<'a> {
    pub places: &'a [Update],
    pub link: usize,
}

// From the newest update back to the first. A link leads down: after a place only those before it are left, so the walk
// ends whatever they hold.
impl<'a> Iterator for Updates<'a> {
    type Item = Update;

    ghost next_gives = { YieldsFirst left };

    ghost remaining = { item_count left };

    fn next(&mut self) -> Option<Update> {
        let (update, before) = self.places.get(..self.link)?.split_last()?;
        self.places = before;
        self.link = usize::from(update.previous);
        Some(*update)
    }
}
