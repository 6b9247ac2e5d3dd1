// The records that estimation wrote, as a query reads them. Facts alone, no code.
