mod cells;
mod clock;
