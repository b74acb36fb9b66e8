// The text of items of each type, in their form and broken, and of whole blocks.
mod blocks;
mod extents;
mod files;
mod shown;
mod trees;
