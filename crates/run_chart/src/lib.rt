//! A run as a message sequence chart: a lifeline for each thread and one for the attacker, arrows with messages, the names that
//! are made, the events, and the violated queries at their steps. It is printed as text and as SVG.
#![tactic(auto)]

mod chart;
mod drawing;
mod grounds;
mod labels;
mod layout;
mod legend;
mod rows;
mod svg;
mod text;
mod texts;

pub use crate::chart::{Chart, Head, Origin, Row, Shape};
pub use crate::drawing::{Drawn, MOST_STEPS, draw};
pub use crate::legend::Legend;
pub use crate::svg::put_svg;
pub use crate::text::put_chart;
