//! The language of scenarios: a text is read as the scenario that it says, or its fault is told with line, column and
//! kind; a scenario is printed back, and asked for the first limit that it exceeds.
#![tactic(auto)]

mod blocks;
mod bounds;
mod costs;
mod expect;
mod fault;
mod index;
mod items;
mod keyword;
mod law;
mod lines;
mod listing;
mod maps;
mod names;
mod place;
mod printing;
mod reader;
mod reading;
mod scan;
mod scenario;
mod scripts;
mod statements;
mod tables;
mod token;
mod types;

pub use bounds::{Limit, limits};
pub use fault::{BadKind, BadText, LangFault};
pub use items::Items;
pub use keyword::{Keyword, keyword_of};
pub use law::{keywords_are_spelled, parts_are_tokens, places_are_places_alone, tokens_are_legal};
pub use listing::print_scenario;
pub use place::Place;
pub use reader::Tokens;
pub use reading::read_scenario;
pub use scenario::{
    Action, AtLine, Block, MapDeclaration, MapId, MapKind, Node, Parts, RunLine, Scenario, Script,
    ScriptId, ScriptKind, Statement, TypeDeclaration, TypeId,
};
pub use token::{Placed, Token, TokenFault};
