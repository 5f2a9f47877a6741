mod reports;
mod rounds;
mod times;
mod workers;
