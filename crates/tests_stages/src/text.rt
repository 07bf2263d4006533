mod differences;
mod fills;
