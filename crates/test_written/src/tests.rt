mod captures;
mod dumps;
mod folders;
mod pc_disk;
mod runs;
mod shelves;
