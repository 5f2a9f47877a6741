// Filters: what texts are filters (`filter_lang`), and at which events filters hold and what they show (`filter_truth`).

mod texts;
mod trees;
mod truth;
