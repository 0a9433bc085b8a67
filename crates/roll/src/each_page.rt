//! The pages of a roll, one after the other.
ghost use Rattle.std.specs.Prelude.{◌≤◌, ◌-◌};
ghost use Rattle.std.specs.Iterator.{at_most};
ghost use Rattle.roll.specs.Format.{page_count};
ghost use Rattle.roll.specs.Rolls.{bytes_of};

use crate::page::Page;
use crate::roll::Roll;

/// The pages of a roll, one after the other, each with its number, from 1.
#[derive(Clone, Copy)]
pub struct Pages<'a> {
    pub(crate) roll: Roll<'a>,
    // How many pages have come.
    pub(crate) past: usize,
    pub(crate) ghost within: { past ≤ page_count (bytes_of roll) },
}

impl<'a> Iterator for Pages<'a> {
    type Item = (usize, Page<'a>);

    ghost use Rattle.roll.specs.EachPage.{NextPage};

    ghost next_gives = { NextPage };

    ghost remaining = { λ s. at_most (page_count (bytes_of s.roll) - s.past) };

    fn next(&mut self) -> Option<(usize, Page<'a>)> {
        let number = self.past + 1;
        let page = self.roll.page(number).ok()?;
        self.past = number;
        Some((number, page))
    }
}
