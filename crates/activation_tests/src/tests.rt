mod fans;
mod many;
mod one_reader;
mod plain;
mod random;
mod rows;
mod systems;
