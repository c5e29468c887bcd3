//! The page: a JSON report of `record`, as HTML for people. It needs nothing from elsewhere, and no text of the
//! report is more than a text in it.
#![tactic(auto)]

mod cards;
mod contents;
mod escapes;
mod graphs;
mod list;
mod locks;
mod looks;
mod markup;
mod orders;
mod page;
mod schedule;
mod sections;
mod sources;
mod threads;
mod waits;
mod wheres;
mod workings;

pub use escapes::put_escaped;
pub use markup::Markup;
pub use page::write_page;
