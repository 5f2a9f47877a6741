// Calls of the function graph.

mod lines;
mod pairs;
mod traces;
