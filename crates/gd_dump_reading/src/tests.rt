mod gnu;
mod pieces;
mod reading;
