//! A drawing of a history's connections over time, in SVG 1.1.
#![tactic(auto)]

mod axis;
mod changes;
mod choice;
mod counts;
mod lanes;
mod legend;
mod plot;
mod rows;
mod scale;
mod shapes;
mod svg;

pub use svg::drawing;
