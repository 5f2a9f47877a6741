mod cursors;
mod generated;
mod keys;
mod merging;
mod packing;
mod passes;
mod pools;
mod sub_pages;
