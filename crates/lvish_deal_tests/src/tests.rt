mod examples;
mod seats;
mod stamps;
mod threads;
